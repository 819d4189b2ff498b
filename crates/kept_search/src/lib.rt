// A search played call by call with kept nodes: theorems that it leaves what the search leaves. It has no code.
#![tactic(auto)]
