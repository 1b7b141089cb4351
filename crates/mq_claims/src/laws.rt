// What the rule of the claims says of every schedule of their workers.
ghost use Rattle.std.specs.Prelude.{◌≢◌, ℕ, [], List};
ghost use Rattle.mq_claims.specs.declared.view.ClaimView.{ClaimView};
ghost use Rattle.mq_claims.specs.Drawing.{IsDrawn};
ghost use Rattle.mq_claims.specs.Machine.{IsShown, Name, Worker, Reached, HasEnded, EachHasOne};
ghost use Rattle.mq_claims.specs.Rule.{right_of, draws_of};

/// Law. The next number and the views show a state that the machine of workers reaches. In it a view
/// with right r holds the draws of r workers, and each recorded index has its piece. This holds for any
/// pieces of the indices.
pub fn views_show_workers<X>()
    ensures { (count seats next : ℕ) (views : List ClaimView) (piece : ℕ → X) → IsDrawn right_of draws_of count seats next views → IsShown right_of draws_of piece count next views }
{}

/// Law. If some worker drew in a schedule, and each worker that drew has reached the count, each index
/// below the count has exactly one piece, recorded by the worker that drew it.
pub fn indices_have_pieces<X>()
    ensures { (count next : ℕ) (f : Name → Worker X) → Reached count next f → ((w : Name) × ((f w).draws ≢ [])) → HasEnded count f → EachHasOne count f }
{}
