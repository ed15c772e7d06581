//! What programs mean, and what proofs of inclusions are: definitions alone.
#![tactic(auto)]
