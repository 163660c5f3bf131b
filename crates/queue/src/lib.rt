// The full message queue of a post, its calls, and feeders of such posts: definitions and laws. No code.
#![tactic(auto)]
