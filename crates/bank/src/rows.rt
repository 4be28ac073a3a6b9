// The worked examples.
ghost use Rattle.std.specs.Prelude.{◌≡◌, length};
ghost use Rattle.bank.specs.Rows.{rows, AllStand};

// How many worked examples there are: they are proved of the definitions, all in one statement.
pub fn worked_rows() -> u32
    ensures counted { result ≡ length rows }
    ensures all_stand { AllStand rows }
{
    22
}
