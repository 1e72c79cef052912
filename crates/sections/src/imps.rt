ghost use Rattle.std.specs.Prelude.{◌≡◌};
ghost use Rattle.sections.specs.Bridge.{scale, both_imps};

// The IMPs for the size of a difference in points, or nothing where no board has such a difference. Ranges in a `match`, where the
// rule has a list of limits: the proof compares the two texts.
pub(crate) fn imps_of_size(size: u32) -> Option<i32>
    ensures { result ≡ scale size }
{
    match size {
        d if d % 10 != 0 => None,
        0..=10 => Some(0),
        11..=40 => Some(1),
        41..=80 => Some(2),
        81..=120 => Some(3),
        121..=160 => Some(4),
        161..=210 => Some(5),
        211..=260 => Some(6),
        261..=310 => Some(7),
        311..=360 => Some(8),
        361..=420 => Some(9),
        421..=490 => Some(10),
        491..=590 => Some(11),
        591..=740 => Some(12),
        741..=890 => Some(13),
        891..=1_090 => Some(14),
        1_091..=1_290 => Some(15),
        1_291..=1_490 => Some(16),
        1_491..=1_740 => Some(17),
        1_741..=1_990 => Some(18),
        1_991..=2_240 => Some(19),
        2_241..=2_490 => Some(20),
        2_491..=2_990 => Some(21),
        2_991..=3_490 => Some(22),
        3_491..=3_990 => Some(23),
        3_991..=15_000 => Some(24),
        _ => None,
    }
}

// The IMPs of a difference with its sign, and their opposite: what the two lines gain.
pub(crate) fn both_imps(r: i32) -> Option<(i32, i32)>
    ensures { result ≡ both_imps r }
{
    let won = imps_of_size(r.unsigned_abs())?;
    let gained = if r < 0 { -won } else { won };
    Some((gained, -gained))
}
