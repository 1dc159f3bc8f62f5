// Question 7: the count of rows of a table or of directly given vertices.
ghost use Rattle.std.specs.Prelude.{◌≡◌, ◌≤◌};
ghost use Rattle.question_values.specs.Rows.{has_rows};

// Question 7, of n entries, so many a row.
pub fn rows_ok<const SIZE: usize>(n: usize) -> bool
    requires { SIZE ≤ 12 }
    ensures { result ≡ has_rows SIZE n }
{
    ((n == 24 * SIZE) | (n == 48 * SIZE)) | ((n == 72 * SIZE) | (n == 96 * SIZE))
}

// Question 7, of n vertex values, four a row.
pub fn vertices_ok(n: usize) -> bool
    ensures { result ≡ has_rows 4 n }
{
    rows_ok::<4>(n)
}
