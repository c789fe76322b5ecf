#![tactic(auto)]

// RULES 11.9, 11.11 and 11.12. No code: demand 3 over lists of a room's calls, what the texts give and the marked
// cases, stated and proved of the rules that the room's contracts cite.
