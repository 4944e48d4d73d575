// The explanation of a refusal: its verdict, the line and the place in it, what was expected there,
// and what to do.
use crate::advice::advice_on;
use crate::advised::write_advice;
use crate::excerpt::write_excerpt;
use crate::expected::write_expected;
use crate::output::Line;
use crate::place::{Refusal, spot_of};
use crate::reason::write_refused;

// Writes the explanation. Lines of the message are cut to a width.
pub fn write_refusal(rt: &impl Print, message: &[u8], refusal: Refusal, width: usize) {
    let spot = spot_of(message, refusal);
    write_refused(rt, message, refusal, spot);
    Line::whole().write_whole(rt);
    write_excerpt(rt, message, spot, width);
    Line::whole().write_whole(rt);
    write_expected(rt, message, refusal, spot);
    if let Some(advice) = advice_on(message, refusal, spot) {
        write_advice(rt, advice);
    }
}
