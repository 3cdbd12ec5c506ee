// The checks of document 01, and their numbers.
ghost use Rattle.std.specs.Prelude.{◌≡◌};
ghost use Rattle.member.specs.Checks.{check_number};
ghost use Rattle.member.specs.declared.check.Check.TheVariants.{YesNo, Strength};

// The ways in which a member may buckle.
#[derive(Clone, Copy, Debug, PartialEq, Eq)]
pub enum Across {
    Height,
    Width,
}

// The yes-or-no checks.
#[derive(Clone, Copy, Debug, PartialEq, Eq)]
pub enum YesNoCheck {
    Layout,
    Slenderness(Across),
    JointLength,
}

impl YesNoCheck {
    pub fn number(self) -> u32
        ensures { result ≡ check_number (YesNo self) }
    {
        match self {
            YesNoCheck::Layout => 1,
            YesNoCheck::Slenderness(Across::Height) => 2,
            YesNoCheck::Slenderness(Across::Width) => 3,
            YesNoCheck::JointLength => 4,
        }
    }
}

// The strength checks; check 11 of kind 4 and of kind 5.
#[derive(Clone, Copy, Debug, PartialEq, Eq)]
pub enum StrengthCheck {
    NetTension,
    SidePieces,
    Bending,
    Shear,
    Buckling(Across),
    CompressionBending,
    TensionBending,
}

impl StrengthCheck {
    pub fn number(self) -> u32
        ensures { result ≡ check_number (Strength self) }
    {
        match self {
            StrengthCheck::NetTension => 5,
            StrengthCheck::SidePieces => 6,
            StrengthCheck::Bending => 7,
            StrengthCheck::Shear => 8,
            StrengthCheck::Buckling(Across::Height) => 9,
            StrengthCheck::Buckling(Across::Width) => 10,
            StrengthCheck::CompressionBending => 11,
            StrengthCheck::TensionBending => 11,
        }
    }
}

// A check. Its number by document 01 is `check_number` (specs/Checks.antt).
#[derive(Clone, Copy, Debug, PartialEq, Eq)]
pub enum Check {
    YesNo(YesNoCheck),
    Strength(StrengthCheck),
}
