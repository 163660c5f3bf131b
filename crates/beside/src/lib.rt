// The record of a queue, demand 2, demand 3 over records and bytes, and the nights: definitions and laws. No code.
#![tactic(auto)]
