// Lists and parts of a lent slice: definitions and laws that every crate uses. No code.
#![tactic(auto)]
