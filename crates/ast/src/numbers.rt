// Enum numbers follow the order in src/ast.rs, from 0. A number past the last variant stands for the last.
ghost use Rattle.std.specs.Prelude.{◌≡◌, get_or, ok_or};
ghost use Rattle.ast.specs.Numbers.{targets, types, logical_ops, compare_ops, math_ops, unary_ops, crypto_ops, locktime_ops, type_number, kind_from};
ghost use Rattle.ast.specs.Tree.{number};
ghost use Rattle.ast.specs.declared.Target.TheVariants.{Taproot};
ghost use Rattle.ast.specs.declared.Type.TheVariants.{Boolean};
ghost use Rattle.ast.specs.declared.BinaryLogicalOp.TheVariants.{BoolAnd};
ghost use Rattle.ast.specs.declared.BinaryCompareOp.TheVariants.{NumNotEqual};
ghost use Rattle.ast.specs.declared.BinaryMathOp.TheVariants.{Min};
ghost use Rattle.ast.specs.declared.UnaryMathOp.TheVariants.{Not};
ghost use Rattle.ast.specs.declared.UnaryCryptoOp.TheVariants.{Ripemd160};
ghost use Rattle.ast.specs.declared.LocktimeOp.TheVariants.{CsvTime};

use crate::{
    BinaryCompareOp, BinaryLogicalOp, BinaryMathOp, ErrorKind, LocktimeOp, Target, Type,
    UnaryCryptoOp, UnaryMathOp,
};

impl From<u32> for Target {
    ghost from_gives = { λ n r. r ≡ get_or targets n Taproot };

    fn from(n: u32) -> Self {
        match n {
            0 => Target::Legacy,
            1 => Target::Segwit,
            _ => Target::Taproot,
        }
    }
}

impl From<Type> for u32 {
    ghost from_gives = { λ t r. r ≡ type_number t };

    fn from(t: Type) -> u32 {
        t as u32
    }
}

impl From<u32> for Type {
    ghost from_gives = { λ n r. r ≡ get_or types n Boolean };

    fn from(n: u32) -> Self {
        match n {
            0 => Type::Signature,
            1 => Type::Number,
            2 => Type::String,
            _ => Type::Boolean,
        }
    }
}

impl From<u32> for BinaryLogicalOp {
    ghost from_gives = { λ n r. r ≡ get_or logical_ops n BoolAnd };

    fn from(n: u32) -> Self {
        match n {
            0 => BinaryLogicalOp::BoolOr,
            _ => BinaryLogicalOp::BoolAnd,
        }
    }
}

impl From<u32> for BinaryCompareOp {
    ghost from_gives = { λ n r. r ≡ get_or compare_ops n NumNotEqual };

    fn from(n: u32) -> Self {
        match n {
            0 => BinaryCompareOp::Equal,
            1 => BinaryCompareOp::NotEqual,
            2 => BinaryCompareOp::Greater,
            3 => BinaryCompareOp::GreaterOrEqual,
            4 => BinaryCompareOp::Less,
            5 => BinaryCompareOp::LessOrEqual,
            6 => BinaryCompareOp::NumEqual,
            _ => BinaryCompareOp::NumNotEqual,
        }
    }
}

impl From<u32> for BinaryMathOp {
    ghost from_gives = { λ n r. r ≡ get_or math_ops n Min };

    fn from(n: u32) -> Self {
        match n {
            0 => BinaryMathOp::Add,
            1 => BinaryMathOp::Sub,
            2 => BinaryMathOp::Max,
            _ => BinaryMathOp::Min,
        }
    }
}

impl From<u32> for UnaryMathOp {
    ghost from_gives = { λ n r. r ≡ get_or unary_ops n Not };

    fn from(n: u32) -> Self {
        match n {
            0 => UnaryMathOp::Add,
            1 => UnaryMathOp::Sub,
            2 => UnaryMathOp::Negate,
            3 => UnaryMathOp::Abs,
            _ => UnaryMathOp::Not,
        }
    }
}

impl From<u32> for UnaryCryptoOp {
    ghost from_gives = { λ n r. r ≡ get_or crypto_ops n Ripemd160 };

    fn from(n: u32) -> Self {
        match n {
            0 => UnaryCryptoOp::Sha256,
            _ => UnaryCryptoOp::Ripemd160,
        }
    }
}

impl From<u32> for LocktimeOp {
    ghost from_gives = { λ n r. r ≡ get_or locktime_ops n CsvTime };

    fn from(n: u32) -> Self {
        match n {
            0 => LocktimeOp::Cltv,
            1 => LocktimeOp::Csv,
            _ => LocktimeOp::CsvTime,
        }
    }
}

// The number of a kind in documents 01 and 02.
impl From<ErrorKind> for u32 {
    ghost from_gives = { λ k r. r ≡ number k };

    #[tactic(auto, unfolding(crate::specs::Tree::number))]
    fn from(k: ErrorKind) -> u32 {
        k as u32
    }
}

// A number that is no kind's.
#[derive(Clone, Copy, PartialEq, Eq)]
pub struct UnknownKind(pub u32);

impl TryFrom<u32> for ErrorKind {
    type Error = UnknownKind;

    ghost try_from_gives = { λ n r. r ≡ ok_or (kind_from n) (record { 0 = n }) };

    #[tactic(auto, unfolding(crate::specs::Tree::number, crate::specs::Numbers::kind_from, crate::specs::Numbers::kind_among))]
    fn try_from(n: u32) -> Result<Self, UnknownKind> {
        match n {
            1 => Ok(ErrorKind::ListingTooLong),
            2 => Ok(ErrorKind::MalformedLine),
            3 => Ok(ErrorKind::UnexpectedLine),
            4 => Ok(ErrorKind::CeilingPassed),
            5 => Ok(ErrorKind::WorkTooShort),
            6 => Ok(ErrorKind::OutputTooShort),
            11 => Ok(ErrorKind::DuplicateVariable),
            12 => Ok(ErrorKind::UndefinedVariable),
            13 => Ok(ErrorKind::VariableConsumed),
            14 => Ok(ErrorKind::UnusedVariable),
            15 => Ok(ErrorKind::InvalidConsumptionOrder),
            16 => Ok(ErrorKind::TypeMismatch),
            17 => Ok(ErrorKind::InvalidOperation),
            18 => Ok(ErrorKind::NoReturn),
            19 => Ok(ErrorKind::UnreachableCode),
            20 => Ok(ErrorKind::DeclarationPathMismatch),
            21 => Ok(ErrorKind::IntegerOverflow),
            22 => Ok(ErrorKind::MalformedPubkey),
            31 => Ok(ErrorKind::NoSuchPath),
            32 => Ok(ErrorKind::NotDue),
            _ => Err(UnknownKind(n)),
        }
    }
}
