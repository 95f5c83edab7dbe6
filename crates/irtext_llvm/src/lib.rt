//! The dialect `llvm`: its types, attributes and operations.
//!
//! The texts of its types and attributes, where N is a number, S a string, I an identifier, T a type of the context:
//!
//! - `llvm.void`
//! - `llvm.label`
//! - `llvm.token`
//! - `llvm.metadata`
//! - `llvm.opaque`
//! - `llvm.ptr`
//! - `llvm.ptr_in <N>`
//! - `llvm.int N`
//! - `llvm.fp half|bfloat|float|double|x86_fp80|fp128|ppc_fp128`
//! - `llvm.named "S"`
//! - `llvm.array <N, T>`
//! - `llvm.vector <N, T>`
//! - `llvm.scalable <N, T>`
//! - `llvm.struct <T, ..>`
//! - `llvm.packed <T, ..>`
//! - `llvm.func <T, ..>`
//! - `llvm.varargs <T, ..>`
//! - `llvm.int N`
//! - `llvm.bool true|false`
//! - `llvm.float N.N`
//! - `llvm.bits 0xB`
//! - `llvm.string "S"`
//! - `llvm.bytes 0xB`
//! - `llvm.symbol @S`
//! - `llvm.block <@S, I>`
//! - `llvm.zero`
//! - `llvm.undef`
//! - `llvm.ints [N, ..]`
//! - `llvm.floats [N.N, ..]`
//! - `llvm.symbols [@S, ..]`
//! - `llvm.type T`
//! - `llvm.inbounds T`
//! - `llvm.cond eq|ne|ugt|uge|ult|ule|sgt|sge|slt|sle`
//! - `llvm.fcond false|oeq|ogt|oge|olt|ole|one|ord|ueq|ugt|uge|ult|ule|une|uno|true`
//! - `llvm.overflow wraps|nsw|nuw|nuw_nsw`
//! - `llvm.at [N, ..]`
//! - `llvm.mask [N, ..]`
//! - `llvm.cases [N, ..]`
//! - `llvm.ordering unordered|monotonic|acquire|release|acq_rel|seq_cst`
//! - `llvm.rmw xchg|add|sub|and|nand|or|xor|max|min|umax|umin|fadd|fsub|fmax|fmin`
//! - `llvm.clauses [cleanup|catch|filter, ..]`
//! - `llvm.pointer`
//! - `llvm.asm <"S", "S">`
//! - `llvm.linkage external|private|internal|available_externally|linkonce|linkonce_odr|weak|weak_odr|common|appending|extern_weak`
//! - `llvm.align N`
//! - `llvm.flag`
//! - `llvm.word I`
//! - `llvm.text "S"`
//! - `llvm.signature T`
//! - `llvm.fast <nnan|ninf|nsz|arcp|contract|afn|reassoc, ..>`
//!
//! `values` has a constructor and a getter for each of these that has a part.
//!
//! `register_llvm` registers its operations, by these formats:
//!
//! - `llvm.module`: ``@name attr_dict {0}``, isolated from above
//! - `llvm.typedef`: ``$llvm_name `:` $llvm_type``
//! - `llvm.global`: ``@name `:` $llvm_type attr_dict``
//! - `llvm.initialized`: ``@name `:` $llvm_type attr_dict {0}``, isolated from above
//! - `llvm.alias`: ``@name `:` $llvm_type attr_dict {0}``, isolated from above
//! - `llvm.declare`: ``@name `:` $llvm_type attr_dict``
//! - `llvm.func`: ``@name `:` $llvm_type attr_dict {0}``, isolated from above
//! - `llvm.return`: ``operands``
//! - `llvm.unreachable`: nothing
//! - `llvm.br`: ``^0 operands``
//! - `llvm.cond_br`: ``$0 `,` ^0 `,` ^1 operands``
//! - `llvm.switch`: ``$0 `,` successors $llvm_cases operands``
//! - `llvm.indirectbr`: `` operands `->` successors `.` ``
//! - `llvm.invoke`: ``$llvm_callee operands `->` ^0 `,` ^1 `:` type($0)``
//! - `llvm.invoke_void`: ``$llvm_callee operands `->` ^0 `,` ^1``
//! - `llvm.resume`: ``$0``
//! - `llvm.call`: ``$llvm_callee operands `:` type($0)``
//! - `llvm.call_void`: ``$llvm_callee operands``
//! - `llvm.constant`: ``$llvm_value `:` type($0)``
//! - `llvm.aggregate`: ``operands `:` type($0)``
//! - `llvm.address_of`: ``$llvm_symbol `:` type($0)``
//! - `llvm.undef`: `` `:` type($0) ``
//! - `llvm.poison`: `` `:` type($0) ``
//! - `llvm.zero`: `` `:` type($0) ``
//! - `llvm.add`: ``$llvm_overflow $0 `,` $1 `:` type($0)``
//! - `llvm.sub`: ``$llvm_overflow $0 `,` $1 `:` type($0)``
//! - `llvm.mul`: ``$llvm_overflow $0 `,` $1 `:` type($0)``
//! - `llvm.shl`: ``$llvm_overflow $0 `,` $1 `:` type($0)``
//! - `llvm.udiv`: ``$0 `,` $1 `:` type($0)``
//! - `llvm.sdiv`: ``$0 `,` $1 `:` type($0)``
//! - `llvm.urem`: ``$0 `,` $1 `:` type($0)``
//! - `llvm.srem`: ``$0 `,` $1 `:` type($0)``
//! - `llvm.lshr`: ``$0 `,` $1 `:` type($0)``
//! - `llvm.ashr`: ``$0 `,` $1 `:` type($0)``
//! - `llvm.and`: ``$0 `,` $1 `:` type($0)``
//! - `llvm.or`: ``$0 `,` $1 `:` type($0)``
//! - `llvm.xor`: ``$0 `,` $1 `:` type($0)``
//! - `llvm.fneg`: ``$0 `:` type($0)``
//! - `llvm.fadd`: ``$0 `,` $1 `:` type($0)``
//! - `llvm.fsub`: ``$0 `,` $1 `:` type($0)``
//! - `llvm.fmul`: ``$0 `,` $1 `:` type($0)``
//! - `llvm.fdiv`: ``$0 `,` $1 `:` type($0)``
//! - `llvm.frem`: ``$0 `,` $1 `:` type($0)``
//! - `llvm.icmp`: ``$llvm_predicate $0 `,` $1 `:` type($0)``
//! - `llvm.fcmp`: ``$llvm_predicate $0 `,` $1 `:` type($0)``
//! - `llvm.select`: ``$0 `,` $1 `,` $2 `:` type($0)``
//! - `llvm.freeze`: ``$0 `:` type($0)``
//! - `llvm.trunc`: ``$0 `to` type($0)``
//! - `llvm.zext`: ``$0 `to` type($0)``
//! - `llvm.sext`: ``$0 `to` type($0)``
//! - `llvm.fptrunc`: ``$0 `to` type($0)``
//! - `llvm.fpext`: ``$0 `to` type($0)``
//! - `llvm.fptoui`: ``$0 `to` type($0)``
//! - `llvm.fptosi`: ``$0 `to` type($0)``
//! - `llvm.uitofp`: ``$0 `to` type($0)``
//! - `llvm.sitofp`: ``$0 `to` type($0)``
//! - `llvm.ptrtoint`: ``$0 `to` type($0)``
//! - `llvm.inttoptr`: ``$0 `to` type($0)``
//! - `llvm.bitcast`: ``$0 `to` type($0)``
//! - `llvm.addrspacecast`: ``$0 `to` type($0)``
//! - `llvm.alloca`: ``$llvm_element operands `:` type($0)``
//! - `llvm.load`: ``$0 `:` type($0)``
//! - `llvm.store`: ``$0 `,` $1``
//! - `llvm.getelementptr`: ``$llvm_element `,` operands `:` type($0)``
//! - `llvm.atomic_load`: ``$llvm_ordering $0 `:` type($0)``
//! - `llvm.atomic_store`: ``$llvm_ordering $0 `,` $1``
//! - `llvm.atomicrmw`: ``$llvm_rmw $llvm_ordering $0 `,` $1 `:` type($0)``
//! - `llvm.cmpxchg`: ``$llvm_ordering $llvm_failure $0 `,` $1 `,` $2 `:` type($0)``
//! - `llvm.fence`: ``$llvm_ordering``
//! - `llvm.va_arg`: ``$0 `:` type($0)``
//! - `llvm.extractvalue`: ``$0 $llvm_at `:` type($0)``
//! - `llvm.insertvalue`: ``$0 `,` $1 $llvm_at `:` type($0)``
//! - `llvm.extractelement`: ``$0 `,` $1 `:` type($0)``
//! - `llvm.insertelement`: ``$0 `,` $1 `,` $2 `:` type($0)``
//! - `llvm.shufflevector`: ``$0 `,` $1 $llvm_mask `:` type($0)``
//! - `llvm.landingpad`: ``$llvm_clauses operands `:` type($0)``
#![tactic(auto)]

pub mod attributes;
pub mod brackets;
pub mod clause;
pub mod fixed;
pub mod float_kind;
pub mod float_predicate;
pub mod freedom;
pub mod int_predicate;
pub mod keys;
pub mod linkage_kind;
pub mod memory_order;
pub mod operations;
pub mod types;
pub mod update;
pub mod values;
pub mod wrapping;

pub use attributes::LlvmAttr;
pub use clause::Clause;
pub use float_kind::FloatKind;
pub use float_predicate::FloatPredicate;
pub use freedom::Freedom;
pub use int_predicate::IntPredicate;
pub use linkage_kind::LinkageKind;
pub use memory_order::MemoryOrder;
pub use operations::register_llvm;
pub use types::{LlvmType, LlvmTypeHead, LlvmTypePlace};
pub use update::Update;
pub use wrapping::Wrapping;
