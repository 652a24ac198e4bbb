// The rules of the space: specs/ has the definitions that every contract cites, proofs/ the claims proved of them. No code.
#![tactic(auto)]
