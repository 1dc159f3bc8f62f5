// The printing of a study: no code, the text that a study is printed as and the law that reading it gives the study back.

#![tactic(auto)]
