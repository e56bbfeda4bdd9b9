// Shapes of texts, with 0 for any digit, and the longest start of a text that begins one: specs/ says what they are, proofs/ has their laws. There is no function here.
#![tactic(auto)]
