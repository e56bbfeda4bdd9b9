// Document 01's known times: a table of calls and answers in specs/, computed in proofs/. There is no function here.
#![tactic(auto)]
