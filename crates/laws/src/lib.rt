// Definitions and laws that say nothing of posts, for every crate above. No code.
#![tactic(auto)]
