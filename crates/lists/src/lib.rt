// Lists: what it means that two are related entry by entry, and laws of any lists. No code.
#![tactic(auto)]
