// Scales that are computed: `harmonics OTONAL START SIZE DIVISIONS`, OTONAL 1 or 0, DIVISIONS 1 and their number or 0 and 0; and `rank2
// GENERATOR UP DOWN PERIOD`. The answer is the count or a refusal, then what stands in every place of the columns.
use base::Refusal;
use frozen::given::{count, flag, float};
use harmonics::segment::SegmentType;
use pitch::Ratio;
use say::Columns;
use scl::Scl;
use std::io;
use std::io::Write;

// The count of a scale or a refusal, then the places.
fn say_made<W: Write>(sink: &mut W, said: Result<Scl, Refusal>, made: &Columns) -> io::Result<()> {
    say::answer(sink, said.map(|scl| usize::from(scl.count)), say::size)?;
    say::places(sink, made)
}

// `harmonics ..`.
pub fn say_segment<W: Write>(sink: &mut W, line: &[u8]) -> io::Result<()> {
    let sort = if flag(line, 2) {
        SegmentType::Otonal
    } else {
        SegmentType::Utonal
    };
    let mut c = say::LENT;
    let said = harmonics::create_harmonics_scale(
        sort,
        count(line, 3),
        count(line, 4),
        flag(line, 5).then_some(count(line, 6)),
        &mut c.kind,
        &mut c.cents,
        &mut c.numer,
        &mut c.denom,
        &mut c.place,
        &mut c.ratio,
        &mut c.wraps,
    );
    say_made(sink, said, &c)
}

// `rank2 ..`.
pub fn say_temperament<W: Write>(sink: &mut W, line: &[u8]) -> io::Result<()> {
    let mut c = say::LENT;
    let said = rank2::create_rank2_temperament_scale(
        Ratio(float(line, 2)),
        count(line, 3),
        count(line, 4),
        Ratio(float(line, 5)),
        &mut c.kind,
        &mut c.cents,
        &mut c.numer,
        &mut c.denom,
        &mut c.place,
        &mut c.ratio,
        &mut c.wraps,
    );
    say_made(sink, said, &c)
}
