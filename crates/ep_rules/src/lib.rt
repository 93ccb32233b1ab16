//! The definitions of Entry Point: this project's profile, after EMV Contactless Book B, over plain data.
#![tactic(auto)]
