// The links that stand alone, at the lower end of a pile: the basket and the row. Both are an end, which keeps the
// messages in the order of posting; they differ in what they offer.
#![tactic(auto)]

pub mod basket;
pub mod end;
pub mod row;
