// The worked examples of document 01, computed from the definitions: specs/Survey. There is no code here.
#![tactic(auto)]
