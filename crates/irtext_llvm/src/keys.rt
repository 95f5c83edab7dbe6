//! The keys of the attributes that the formats of the operations of the dialect `llvm` name.

/// The key `llvm_name`, of `llvm.typedef`.
pub const NAME_KEY: &'static str = "llvm_name";

/// The key `llvm_type`, of `llvm.typedef`, `llvm.global`, `llvm.initialized`, `llvm.alias`, `llvm.declare` and `llvm.func`.
pub const TYPE_KEY: &'static str = "llvm_type";

/// The key `llvm_cases`, of `llvm.switch`.
pub const CASES_KEY: &'static str = "llvm_cases";

/// The key `llvm_callee`, of `llvm.invoke`, `llvm.invoke_void`, `llvm.call` and `llvm.call_void`.
pub const CALLEE_KEY: &'static str = "llvm_callee";

/// The key `llvm_value`, of `llvm.constant`.
pub const VALUE_KEY: &'static str = "llvm_value";

/// The key `llvm_symbol`, of `llvm.address_of`.
pub const SYMBOL_KEY: &'static str = "llvm_symbol";

/// The key `llvm_overflow`, of `llvm.add`, `llvm.sub`, `llvm.mul` and `llvm.shl`.
pub const OVERFLOW_KEY: &'static str = "llvm_overflow";

/// The key `llvm_predicate`, of `llvm.icmp` and `llvm.fcmp`.
pub const PREDICATE_KEY: &'static str = "llvm_predicate";

/// The key `llvm_element`, of `llvm.alloca` and `llvm.getelementptr`.
pub const ELEMENT_KEY: &'static str = "llvm_element";

/// The key `llvm_ordering`, of `llvm.atomic_load`, `llvm.atomic_store`, `llvm.atomicrmw`, `llvm.cmpxchg` and `llvm.fence`.
pub const ORDERING_KEY: &'static str = "llvm_ordering";

/// The key `llvm_rmw`, of `llvm.atomicrmw`.
pub const RMW_KEY: &'static str = "llvm_rmw";

/// The key `llvm_failure`, of `llvm.cmpxchg`.
pub const FAILURE_KEY: &'static str = "llvm_failure";

/// The key `llvm_at`, of `llvm.extractvalue` and `llvm.insertvalue`.
pub const AT_KEY: &'static str = "llvm_at";

/// The key `llvm_mask`, of `llvm.shufflevector`.
pub const MASK_KEY: &'static str = "llvm_mask";

/// The key `llvm_clauses`, of `llvm.landingpad`.
pub const CLAUSES_KEY: &'static str = "llvm_clauses";
