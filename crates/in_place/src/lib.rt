// A list that goes one level down in its own place: theorems that its turns leave the new nodes and the share. It has no code.
#![tactic(auto)]
