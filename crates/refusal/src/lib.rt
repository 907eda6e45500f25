// What refuses a call: the table's rows, in order.
#![tactic(auto)]

ghost use Rattle.std.specs.Prelude.{◌≡◌, not, ◌||◌, ltb, eqb};
ghost use Rattle.rules.specs.Numbers.{most_requests};
ghost use Rattle.refusal.specs.Refusing.{refusal_of};

use pool::node::Pool;
use rules::{CallFault, MOST_REQUESTS, Owner};

// False where 9 is given: "more than 1,024 requests, or answer list of another length than the request list".
fn lists_fit(requests: usize, answers: usize) -> bool
    ensures { not result ≡ (ltb most_requests requests || not (eqb answers requests)) }
{
    if MOST_REQUESTS < requests {
        return false;
    }
    answers == requests
}

// "The table's order is the order of checks.": 9, then 13 for another owner, 1, 2; last, -1 for a list that holds something which is no
// request.
pub fn refusal(
    pool: &[i32],
    owner: i32,
    workspace: usize,
    requests: usize,
    answers: usize,
    asked: bool,
) -> Result<(), CallFault>
    ensures { result ≡ refusal_of pool.now owner workspace requests answers asked }
{
    let lists = lists_fit(requests, answers);
    let known = pool::good_owner(Owner(owner));
    let lengths = pool::lengths_fit(pool, workspace);
    if !lists {
        return Err(CallFault::BadLists);
    }
    if !known {
        return Err(CallFault::BadOwner);
    }
    if !lengths {
        return Err(CallFault::BadLength);
    }
    if !sound::sound(Pool::over(pool)) {
        return Err(CallFault::NotSound);
    }
    if !asked {
        return Err(CallFault::NoRequest);
    }
    Ok(())
}
