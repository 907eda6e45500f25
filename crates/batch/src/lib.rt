// A batch of requests over lent lists: whether everything asked is a request, and the requests done
// one after another; and a whole call.
#![tactic(auto)]

ghost use Rattle.std.specs.Prelude.{◌≡◌, ◌+◌, ◌*◌, ◌≤◌, length, None};
ghost use Rattle.std.proofs.lemmas.List.Edits.{sets};
ghost use Rattle.rules.specs.Lists.{every};
ghost use Rattle.rules.specs.Owners as O;
ghost use Rattle.rules.specs.Answers.{call_number};
ghost use Rattle.rules.specs.Call as C;
ghost use Rattle.found_items.specs.Items.{shown_from, Pointing};
ghost use Rattle.promises.specs.Calls.{lent, left, Allowed};
ghost use Rattle.batch.specs.Batching.{batch_of, Batched};

use pool::node::Pool;
use rules::{Answer, CallFault, FoundRecord, Request};

// "A request is of one of the four kinds"; a search is of kind 4, 5 or 6, by its mode.
fn is_request(q: Request) -> bool
    ensures { result ≡ C.is_request q }
{
    (1 <= q.kind) & (q.kind <= 6)
}

// Whether every place of the list holds a request.
pub fn all_asked(requests: &[Request]) -> bool
    ensures { result ≡ every C.is_request requests.now }
{
    requests.iter().all(|q| is_request(*q))
}

// The first n items of the workspace go, as records, to the places of the found list from `at` on.
fn carry(pool: &[i32], work: &[i32], n: usize, found: &mut [FoundRecord], at: usize)
    requires { (2 * n ≤ length work.now) × Pointing pool.now work.now 0 n
        × (at + n ≤ length found.old) }
    ensures { found.new ≡ sets found.old at (shown_from pool.now work.now 0 n) }
{
    for k in 0..n {
        found[at + k] = found_items::item(pool, work, k);
    }
}

// "each request is done in turn over a lent list of request records", as an owner's: a thin loop
// above `one_request`. "its answer goes to the same place in the answer list"; "Accepted searches
// fill the found list one after another". The free slots are counted once, at the start.
pub fn serve(
    pool: &mut [i32],
    work: &mut [i32],
    requests: &[Request],
    answers: &mut [Answer],
    found: &mut [FoundRecord],
    owner: i32,
)
    requires { C.call_fault
        (lent (O.owner owner) pool.old work.old requests.now answers.old found.old) ≡ None }
    ensures { Batched
        (batch_of (lent (O.owner owner) pool.old work.old requests.now answers.old found.old))
        pool.new answers.new found.new }
{
    let mut free = free_slots::free_slots(Pool::over(pool));
    let mut filled: usize = 0;
    for (i, q) in requests.iter().enumerate() {
        let room = found.len() - filled;
        let s = request::one_request(pool, work, owner, *q, filled, room, free);
        carry(pool, work, s.listed, found, filled);
        answers[i] = s.answer;
        filled += s.listed;
        free = s.free;
    }
}

// One call: a batch of an owner over lent lists. For any input at all, what refuses it, the pool,
// the workspace, the answers and the found list are those that the definition `call` gives.
pub fn one_call(
    pool: &mut [i32],
    work: &mut [i32],
    requests: &[Request],
    answers: &mut [Answer],
    found: &mut [FoundRecord],
    owner: i32,
) -> Result<(), CallFault>
    ensures { Allowed (lent (O.owner owner) pool.old work.old requests.now answers.old found.old)
        (left (call_number result) pool.new work.new answers.new found.new) }
{
    let all = all_asked(requests);
    refusal::refusal(pool, owner, work.len(), requests.len(), answers.len(), all)?;
    serve(pool, work, requests, answers, found, owner);
    // "On return 0 the workspace equals the pool."
    pool::copy(pool, work);
    Ok(())
}
