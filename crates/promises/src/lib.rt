// The user's demands, as theorems over the definitions that the contracts of the C interface cite: no function of its own.
// The definitions that they speak of are in specs/, the promises in proofs/Promises.
#![tactic(auto)]
