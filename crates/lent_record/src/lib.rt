// Functions that are lent a struct, or lend one, over a call that moves it on: for any struct, any answer and any other parameters. They add nothing to
// the call and leave nothing out: what it promises of the struct that came and of the one that it leaves, they promise.
#![tactic(auto)]

ghost use Rattle.std.specs.Prelude.{List};

// What a call by value returns: its answer, and the struct then.
#[derive(Clone, Copy)]
pub struct Stepped<A, S> {
    pub answer: A,
    pub session: S,
}

// A call that takes the struct by value, and is lent a slice and a value to write beside its other parameters. What it promises is said of the struct, the
// slice, the value and the parameters that came, of its answer, and of the struct, the slice and the value then.
pub trait ValueCall<S, W, V, P, A> {
    ghost promise: { S → List W → V → P → A → S → List W → V → Type 0 };

    fn call(session: S, slice: &mut [W], value: &mut V, passed: P) -> Stepped<A, S>
        ensures { promise session slice.old value.old passed result.answer result.session slice.new value.new };
}

// The same of a call that is lent the struct.
pub trait LentCall<S, W, V, P, A> {
    ghost promise: { S → List W → V → P → A → S → List W → V → Type 0 };

    fn call(session: &mut S, slice: &mut [W], value: &mut V, passed: P) -> A
        ensures { promise session.old slice.old value.old passed result session.new slice.new value.new };
}

// The call by value, over a lent struct.
pub fn over_lent<S: Copy, W, V, P, A, C: ValueCall<S, W, V, P, A>>(
    session: &mut S,
    slice: &mut [W],
    value: &mut V,
    passed: P,
) -> A
    ensures { C.promise session.old slice.old value.old passed result session.new slice.new value.new }
{
    let stepped = C::call(*session, slice, value, passed);
    *session = stepped.session;
    stepped.answer
}

// The call over a lent struct, by value: it lends its own copy and returns it.
pub fn over_local<S: Copy, W, V, P, A, C: LentCall<S, W, V, P, A>>(
    mut session: S,
    slice: &mut [W],
    value: &mut V,
    passed: P,
) -> Stepped<A, S>
    ensures { C.promise session slice.old value.old passed result.answer result.session slice.new value.new }
{
    let answer = C::call(&mut session, slice, value, passed);
    Stepped { answer, session }
}
