// A night over any kind of post, and that the bench shows the same over short records and over full queues: definitions and laws. No code.
#![tactic(auto)]
