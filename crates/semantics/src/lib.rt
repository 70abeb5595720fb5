// What sheets and formulas mean: the definitions are in specs/, their theorems in proofs/.
// There is no code here.
#![tactic(auto)]
