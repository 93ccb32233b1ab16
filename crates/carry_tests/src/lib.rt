//! Tests of links and transports: commands over a wire with lost frames, the perfect channel, the radio, and a reader at a
//! field.
#![tactic(auto)]

#[cfg(test)]
mod cards;
#[cfg(test)]
mod channel;
#[cfg(test)]
mod driving;
#[cfg(test)]
mod field;
#[cfg(test)]
mod losses;
#[cfg(test)]
mod radio;
