// The first refusal of several answers.
ghost use Rattle.std.specs.Prelude.{◌≡◌, IfErr, OnOk};
ghost use Rattle.edit_ports.specs.Answers.{first_refusal};

use pcm_base::Refusal;

/// The first refusal after one more answer.
pub fn first_of<T>(earlier: Option<Refusal>, what: &Result<T, Refusal>) -> Option<Refusal>
    ensures unrefused { OnOk what.now (result ≡ earlier) }
    ensures refusal { IfErr what.now (λ reason. result ≡ first_refusal earlier reason) }
{
    match (earlier, what) {
        (None, Err(reason)) => Some(*reason),
        _ => earlier,
    }
}
