// Numbers in base ten, as bytes in any lent buffer that has room for them, from a position on; each answers the position behind them.
#![tactic(auto)]

pub mod signed;
pub mod unsigned;
