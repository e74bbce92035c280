//! What a sense is for.
ghost use Rattle.std.specs.Prelude.{◌≡◌, List};
ghost use Rattle.lt_model.specs.declared.normal.Term.{Term};
ghost use Rattle.lt_model.specs.declared.normal.Body.{Body};
ghost use Rattle.lt_face.specs.State.{State};
ghost use Rattle.lt_model.specs.Answers.{answers, some_answer};
ghost use Rattle.lt_sense.specs.Kept.{Sense};
ghost use Rattle.lt_sense.specs.Sense.{AgreeWhereCovered, IsTight};
ghost use Rattle.lt_query.specs.Answering.{AreTestsBound};
ghost use Rattle.lt_join.specs.Certify.{Certifies, Vouches};

/// Two states that agree on every row that a sense covers have the same answers where the sense certifies those of the one;
/// and it certifies, and is tight, on the other too. So it is with a requirement's truth.
pub fn agreeing_states_answer_alike()
    ensures answers { (sense : Sense) (terms : List Term) (body : Body) (s t : State) → AgreeWhereCovered sense s t → Certifies sense body s → answers terms body s ≡ answers terms body t }
    ensures certifies { (sense : Sense) (body : Body) (s t : State) → AgreeWhereCovered sense s t → Certifies sense body s → Certifies sense body t }
    ensures truth { (sense : Sense) (body : Body) (s t : State) → AreTestsBound body → AgreeWhereCovered sense s t → Vouches sense body s → some_answer body s ≡ some_answer body t }
    ensures vouches { (sense : Sense) (body : Body) (s t : State) → AreTestsBound body → AgreeWhereCovered sense s t → Vouches sense body s → Vouches sense body t }
    ensures tight { (sense : Sense) (s t : State) → AgreeWhereCovered sense s t → IsTight sense s → IsTight sense t }
{}
