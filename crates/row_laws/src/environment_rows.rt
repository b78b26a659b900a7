//! Rows of the environment that equal the reference host's.
ghost use Rattle.std.specs.Prelude.{◌≡◌, ◌+◌, ◌<◌, ◌^◌, ℕ, List};
ghost use Rattle.wit_types.specs.Plain.{Name};
ghost use Rattle.policy_data.specs.declared.data.Arguments.TheVariants.{Given as TheseArguments};
ghost use Rattle.row_runs.specs.Equals.{Fixed, RowEquals};
ghost use Rattle.adapter_code.specs.Layout.{image_at};
ghost use Rattle.row_laws.specs.Arguments.{arguments_listed, arguments_row, arguments_widths, IsTexts};

use host_port::Host;

/// `get-arguments`, where the policy gives them: texts that stand in the static data.
pub fn given_arguments_equal<H: Host>()
    ensures { (w : Fixed) (at : ℕ) (texts : List (List ℕ)) (names : List Name) → w.setup.policy.env_arguments ≡ TheseArguments texts → IsTexts w.image (image_at w.layout) at texts → image_at w.layout + at < 2 ^ 32 → RowEquals w H.step (arguments_listed names) (arguments_row (image_at w.layout + at)) arguments_widths }
{}
