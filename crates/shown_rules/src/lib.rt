// What shown text is (document 02, C-13). There is no code here.
#![tactic(auto)]
