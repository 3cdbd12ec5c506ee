// The tables: strengths by grade and stress, duration and moisture factors, slenderness limits. Each is a `match` on a local number, as document 01 asks (decision 17),
// so the codes are numbers and no enums. An unknown code gives 0, as the definitions' tables do: no listed figure is 0 (decision 1).
ghost use Rattle.std.specs.Prelude.{◌≡◌};
ghost use Rattle.sp64.specs.Tables.{look_up, grades, table_strength, duration_factor, moisture_factor, slenderness_limit};

use sp64::tables::Stress;

// One line of Table 7: the value for grade 1, 2 or 3.
fn by_grade(grade: u64, k45: u64, k40: u64, k35: u64) -> u64
    ensures { result ≡ look_up (grades k45 k40 k35) grade }
{
    match grade {
        1 => k45,
        2 => k40,
        3 => k35,
        _ => 0,
    }
}

// Table 7, in kPa.
pub fn table_strength(stress: Stress, grade: u64) -> u64
    ensures { result ≡ table_strength stress grade }
{
    match stress {
        Stress::Bending => by_grade(grade, 39_000, 34_000, 30_000),
        Stress::Compression => by_grade(grade, 32_000, 30_000, 27_000),
        Stress::Tension => by_grade(grade, 31_000, 27_000, 24_000),
        Stress::Shear => by_grade(grade, 4100, 3900, 3900),
    }
}

// The duration factor t of a regime, in hundredths.
pub fn duration_factor(regime: u64) -> u64
    ensures { result ≡ duration_factor regime }
{
    match regime {
        1 => 100,
        2 => 53,
        3 => 66,
        4 => 66,
        5 => 80,
        6 => 80,
        7 => 92,
        8 => 110,
        10 => 75,
        11 => 100,
        _ => 0,
    }
}

// The moisture factor w of the wood moisture in percent, in hundredths.
pub fn moisture_factor(percent: u64) -> u64
    ensures { result ≡ moisture_factor percent }
{
    match percent {
        0..=12 => 100,
        13..=15 => 90,
        16..=20 => 85,
        _ => 75,
    }
}

// The slenderness limit of a row of Table 16.
pub fn slenderness_limit(row: u64) -> u64
    ensures { result ≡ slenderness_limit row }
{
    match row {
        1 => 120,
        2 => 150,
        3 => 200,
        4 => 150,
        5 => 200,
        _ => 0,
    }
}
