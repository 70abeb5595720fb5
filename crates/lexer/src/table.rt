// The class of each byte, sixteen bytes a line: a stands for letter, 0 digit, _ blank, ( bracket, & joiner, $ line end, . other.
// Printed by the program `classtable`; not to be changed by hand.
pub const CLASSES: [u8; 256] = *b"\
    ........._$.....\
    ................\
    _&....&.((&.&...\
    0000000000&.(&(.\
    ................\
    ...........(.(&.\
    .aaaaaaaaaaaaaaa\
    aaaaaaaaaaa(&(..\
    ................\
    ................\
    ................\
    ................\
    ................\
    ................\
    ................\
    ................\
";
