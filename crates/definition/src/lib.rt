// No code: specs/ is the definition of the engine's behaviour, proofs/ the theorems about it. The types are `model`'s.
#![tactic(auto)]
