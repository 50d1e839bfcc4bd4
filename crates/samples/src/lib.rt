// The samples of the papers and the edges of the rules, computed of the definitions of reading and writing. No code.
#![tactic(auto)]
