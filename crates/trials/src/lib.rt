// The cases of booking, of the call by key, and of saving and loading, computed of the definitions. No code.
#![tactic(auto)]
