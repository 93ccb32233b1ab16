//! Laws about frames and bursts, over plain lists of bytes: each function's contract is a law, and its body is empty.
ghost use Rattle.rf_frame.specs.Laws.{HitsWhereItFalls, DamageIsSeen, MissedIsSame, SealedIsOpened};

/// A burst inverts a bit just where a set bit of its mask falls on a bit of the frame.
pub fn hits_where_it_falls()
    ensures { HitsWhereItFalls }
{}

/// A burst that inverts a bit of a good frame of wave `A` or `B` leaves a frame that isn't good.
pub fn damage_is_seen()
    ensures { DamageIsSeen }
{}

/// A burst that inverts no bit leaves the frame as it is.
pub fn missed_is_same()
    ensures { MissedIsSame }
{}

/// A message that isn't empty is read again from its frame.
pub fn sealed_is_opened()
    ensures { SealedIsOpened }
{}
