// The three demands: statements about the definitions that the public promises are equations with. There is no code here.
#![tactic(auto)]
