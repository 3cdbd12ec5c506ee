// The modulus of elasticity of Table В.2а and the factor e, each a `match` on a local number, as the tables of `strength` (decision 17).
ghost use Rattle.std.specs.Prelude.{◌≡◌};
ghost use Rattle.sagrules.specs.Elasticity.{table_modulus, elastic_duration};

// Table В.2а, in MPa; an unknown grade gives 0.
pub(crate) fn table_modulus(grade: u64) -> u64
    ensures { result ≡ table_modulus grade }
{
    match grade {
        1 => 12_000,
        2 => 11_000,
        3 => 10_000,
        _ => 0,
    }
}

// e, in hundredths, of a regime: Б, В, and every other.
pub(crate) fn elastic_duration(regime: u64) -> u64
    ensures { result ≡ elastic_duration regime }
{
    match regime {
        2 => 75,
        3 => 90,
        _ => 100,
    }
}
