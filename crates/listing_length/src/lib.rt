// How long a listing can be: laws alone.

#![tactic(auto)]
