ghost use Rattle.std.specs.Prelude.{◌≡◌};
ghost use Rattle.cy_num.specs.Types.{bits, common, greatest, least, promote};

/// The C number types of the profile, by sign and width (ISO/IEC 9899:2011 6.2.5).
#[derive(Clone, Copy, Debug, PartialEq, Eq)]
pub enum CNum {
    I8,
    U8,
    I16,
    U16,
    I32,
    U32,
    I64,
    U64,
}

/// The operations whose results wrap (ISO/IEC 9899:2011 6.5.5, 6.5.6, 6.5.10 to 6.5.12).
#[derive(Clone, Copy, Debug, PartialEq, Eq)]
pub enum Arith {
    Add,
    Sub,
    Mul,
    And,
    Or,
    Xor,
}

/// The type after the integer promotions (ISO/IEC 9899:2011 6.3.1.1).
pub fn promote(t: CNum) -> CNum
    ensures { result ≡ promote t }
{
    match t {
        CNum::I8 | CNum::U8 | CNum::I16 | CNum::U16 => CNum::I32,
        _ => t,
    }
}

/// The type of both operands after the usual arithmetic conversions (ISO/IEC 9899:2011 6.3.1.8).
pub fn common(a: CNum, b: CNum) -> CNum
    ensures { result ≡ common a b }
{
    match (promote(a), promote(b)) {
        (CNum::U64, _) | (_, CNum::U64) => CNum::U64,
        (CNum::I64, _) | (_, CNum::I64) => CNum::I64,
        (CNum::U32, _) | (_, CNum::U32) => CNum::U32,
        _ => CNum::I32,
    }
}

/// The least value of a type (ISO/IEC 9899:2011 5.2.4.2.1).
pub fn least(t: CNum) -> i128
    ensures { result ≡ least t }
{
    match t {
        CNum::I8 => i8::MIN as i128,
        CNum::I16 => i16::MIN as i128,
        CNum::I32 => i32::MIN as i128,
        CNum::I64 => i64::MIN as i128,
        CNum::U8 | CNum::U16 | CNum::U32 | CNum::U64 => 0,
    }
}

/// The greatest value of a type (ISO/IEC 9899:2011 5.2.4.2.1).
pub fn greatest(t: CNum) -> i128
    ensures { result ≡ greatest t }
{
    match t {
        CNum::I8 => i8::MAX as i128,
        CNum::U8 => u8::MAX as i128,
        CNum::I16 => i16::MAX as i128,
        CNum::U16 => u16::MAX as i128,
        CNum::I32 => i32::MAX as i128,
        CNum::U32 => u32::MAX as i128,
        CNum::I64 => i64::MAX as i128,
        CNum::U64 => u64::MAX as i128,
    }
}

// The width of a type (6.2.6.2).
pub fn width(t: CNum) -> u32
    ensures { result ≡ bits t }
{
    match t {
        CNum::I8 | CNum::U8 => 8,
        CNum::I16 | CNum::U16 => 16,
        CNum::I32 | CNum::U32 => 32,
        CNum::I64 | CNum::U64 => 64,
    }
}
