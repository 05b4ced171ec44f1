//! Rows of side conditions: the condition's word, what stands for its parameters in order, and whether it holds by
//! text. A filling is a statement S, an expression E, a test B or a name X, and then its text.

/// The lines of the table but `swaps`, and fillings of other kinds than a line has.
pub const LINES: &str = "\
keeps & S x := a[y]; & E y + a[y] => yes
keeps & S a[x] := 1; & E a[y] => no
keeps & S for k = 0 to 2 { skip; } & E b[k] => no
keeps & S let x = 1 { y := x; } & B z < 1 => yes
keeps & S let x = 1 { y := x; } & B not x < 1 => no
keeps & S x := y; & X y => yes
keeps & S x[y] := y; & X x => no
keeps & E 1 & X x => no
ignores & E a[y] & X x => yes
ignores & E a[x] & X x => no
ignores & B y < 1 or z == 2 & X x => yes
ignores & B y < 1 or x == 2 & X x => no
ignores & S y := z; & X x => yes
ignores & S y[x] := z; & X x => no
ignores & S x := z; & X x => no
ignores & X y & X x => no
commutes & S x := z; & S y := z; => yes
commutes & S x := y; & S y := 1; => no
commutes & S y := 1; & S x := y; => no
commutes & S x := 1; & S x := 1; => no
commutes & S x := 1; & S if z < 1 { assert z < 2; } else { } => no
commutes & S x := 1; & E 1 => no
positive & E 2 * (1 + 3) => yes
positive & E 3 - 1 => no
positive & E 1 + 0 => no
positive & S skip; => no
constant & E 1 - 2 * 3 => yes
constant & E x - x => no
constant & B 1 < 2 => no
distinct & X x & X y => yes
distinct & X x & X x => no
distinct & X x & E y => no
quiet & S while x < 1 { x := x + 1; } => yes
quiet & S while x < 1 { assert x < 2; } => no
quiet & B x < 1 => no";

/// `swaps`: what all regions ask; then region by region.
pub const SWAPS: &str = "\
distinct & S x := z; & S y := i; & X i => yes
distinct & S x := z; & S y := x; & X i => no
distinct & S let i = 1 { skip; } & S skip; & X i => no
distinct & S skip; & S assert i < 1; & X i => no
distinct & S skip; & S skip; & X i & X i => no
distinct & S skip; & S skip; & E i => no
distinct & S a[i] := 1; & S x := a[i]; & X i => yes
distinct & S a[i + 1] := a[1 + i]; & S a[1 + i] := 2; & X i => yes
distinct & S a[i - 1] := 1; & S x := a[i - 1]; & X i => yes
distinct & S a[i - 1] := 1; & S x := a[i]; & X i => no
distinct & S a[0, i] := 1; & S x := a[i, i]; & X i => yes
distinct & S a[0, i] := 1; & S x := a[i, 0]; & X i => no
distinct & S a[i] := 1; & S x := a[i, 0]; & X i => no
distinct & S a[i] := 1; & S x := a[2 * i]; & X i => no
earlier & S a[i] := x; & S b[i] := a[i - 1]; & X i => yes
earlier & S a[i] := x; & S b[i] := a[i + 1]; & X i => no
earlier & S a[i + 2] := a[i + 1]; & S a[i] := a[1 + i]; & X i => yes
earlier & S a[i + 2] := a[i]; & S a[i] := a[1 + i]; & X i => no
distinct & S a[i, j] := 1; & S x := a[i, j]; & X i & X j => yes
distinct & S a[i] := 1; & S x := a[i]; & X i & X j => no
earlier & S a[j, i] := 1; & S x := a[j, i]; & X i & X j => yes
earlier & S a[i, j] := 1; & S x := a[i - 1, j]; & X i & X j => no
crossing & S a[i] := 1; & S x := a[i]; & X i & X j => yes
crossing & S a[0] := 1; & S x := a[0]; & X i & X j => no";
