ghost use Rattle.std.specs.Prelude.{◌≡◌, ◌≢◌, ◌++◌, ℕ, List};
ghost use Rattle.fil_base.specs.CidParts.{CidParts};
ghost use Rattle.cid_core.specs.BlockParts.{BlockParts};
ghost use Rattle.car_file.specs.Car.{IsCar, car};
ghost use Rattle.car_file.specs.CarFault.{IsCarFault};
ghost use Rattle.car_file.specs.declared.fault.CarFault.{CarFault};
ghost use Rattle.car_file.specs.declared.fault.CarKind.TheVariants.{Cut};

/// A law, with no code: a root and blocks have an archive of their own, and it is not refused.
pub fn one_car()
    ensures one { (r s : CidParts) (x y : List BlockParts) → IsCar r x → IsCar s y → car r x ≡ car s y
        → (r ≡ s) × (x ≡ y) }
    ensures accepted { (root : CidParts) (blocks : List BlockParts) (fault : CarFault) → IsCar root blocks
        → IsCarFault (car root blocks) fault → ⊥ }
{}

/// A law, with no code: bytes have one fault at most, and further bytes behind them change none but a cut.
pub fn one_car_fault()
    ensures one { (bytes : List ℕ) (a b : CarFault) → IsCarFault bytes a → IsCarFault bytes b → a ≡ b }
    ensures stays { (bytes more : List ℕ) (fault : CarFault) → fault.kind ≢ Cut → IsCarFault bytes fault
        → IsCarFault (bytes ++ more) fault }
{}
