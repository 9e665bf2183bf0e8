//! Java's operators on two ints, and its two operators on one.

ghost use Rattle.std.specs.Prelude.{◌≡◌, ◌↔◌, IsNone, IfSome, IsTrue, neg_ℤ};
ghost use Rattle.ix_num.specs.Ints.{IsInt};
ghost use Rattle.ix_num.specs.Arithmetic.{wrap_of, exact_of, java_of, flip_of, DividesByZero, gives_ints};

/// An operator on two ints: `+ - * / % & | ^ << >> >>>` (JLS 15.17 to 15.19, 15.22.1).
#[derive(Clone, Copy)]
pub enum Arith {
    Add,
    Sub,
    Mul,
    Div,
    Rem,
    And,
    Or,
    Xor,
    Shl,
    Shr,
    Ushr,
}

/// The int with the same low 32 bits as `n` (JLS 4.2.2, 5.1.3).
pub fn wrap(n: i128) -> i32
    ensures { result ≡ wrap_of n }
{
    let low = n.rem_euclid(4294967296);
    if low < 2147483648 {
        low as i32
    } else {
        (low - 4294967296) as i32
    }
}

/// The exact result of `+ - * /`, and Java's result of the other operators, which is an int.
/// `None` comes exactly for `/` and `%` by 0, where Java throws (JLS 15.17.2, 15.17.3).
pub fn exact(op: Arith, x: i32, y: i32) -> Option<i128>
    ensures value { result ≡ exact_of op x y }
    ensures none { IsNone result ↔ DividesByZero op y }
    ensures int { IsTrue (gives_ints op) → IfSome result IsInt }
{
    exact_value(op, x, y)
}

/// `exact`, of which all else that its contract says are laws of `exact_of`.
fn exact_value(op: Arith, x: i32, y: i32) -> Option<i128>
    ensures { result ≡ exact_of op x y }
{
    let left = x as i128;
    let right = y as i128;
    match op {
        Arith::Add => Some(left + right),
        Arith::Sub => Some(left - right),
        Arith::Mul => Some(left * right),
        Arith::Div if y == 0 => None,
        Arith::Div => Some(left / right),
        Arith::Rem if y == 0 => None,
        Arith::Rem => Some(left % right),
        Arith::And => Some((x & y) as i128),
        Arith::Or => Some((x | y) as i128),
        Arith::Xor => Some((x ^ y) as i128),
        Arith::Shl => Some((x << (y & 31)) as i128),
        Arith::Shr => Some((x >> (y & 31)) as i128),
        Arith::Ushr => Some((x.cast_unsigned() >> (y & 31)).cast_signed() as i128),
    }
}

/// Java's result: the low 32 bits of the exact one. `None` comes exactly for `/` and `%` by 0, where Java throws.
pub fn java(op: Arith, x: i32, y: i32) -> Option<i32>
    ensures { record {
      value : result ≡ java_of op x y;
      none : IsNone result ↔ DividesByZero op y;
    } }
{
    match exact(op, x, y) {
        Some(n) => Some(wrap(n)),
        None => None,
    }
}

/// Java's `-x`: the low 32 bits of it, so that the least int is its own (JLS 15.15.4).
pub fn java_neg(x: i32) -> i32
    ensures { result ≡ wrap_of (neg_ℤ x) }
{
    wrap(-(x as i128))
}

/// Java's `~x`, which is `-x - 1` and always an int (JLS 15.15.5).
pub fn java_not(x: i32) -> i32
    ensures { result ≡ flip_of x }
{
    -1 - x
}
