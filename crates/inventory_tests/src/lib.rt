//! Tests of the inventory: clean fields, fields of many cards, and fields that answer what they should not.
#![tactic(auto)]

#[cfg(test)]
mod inventories;
