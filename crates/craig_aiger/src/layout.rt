//! The layout of the cones of some edges, and what is read of it and written.
//!
//! The forms of the texts are those of Biere, Heljanko and Wieringa, AIGER 1.9 and beyond, 2011.
ghost use Rattle.std.specs.Prelude.{◌≡◌, ◌<◌, ◌++◌, ℕ, All, Contains, length, slice_get, Some, IfOk, IsOk, OnOk, OnErr};
ghost use Rattle.craig_spec.specs.Circuit.{IsStrict};
ghost use Rattle.craig_aig.specs.Cones.{cone};
ghost use Rattle.craig_aiger.specs.Appending.{HasRoom};
ghost use Rattle.craig_aiger.specs.AsciiText.{aag_text};
ghost use Rattle.craig_aiger.specs.BinaryText.{aig_text};
ghost use Rattle.craig_aiger.specs.Layouts.{circuit_of, HasFunctions, IsLayout, IsWritable};
ghost use Rattle.craig_aiger.specs.RoundTrip.{ReadsAs, ReadsAsBinary};
ghost use Rattle.craig_aiger.specs.Texts.{text_in};

use crate::binary_size::binary_text_size;
use crate::binary_writing::append_binary_text;
use crate::needed::needed_nodes;
use crate::node_numbers::{number_nodes, numbered_gates, numbered_outputs};
use crate::script_inputs::input_names;
use crate::text_size::text_size;
use crate::writing::append_text;
use crate::{Form, OutName};
use craig_aig::{Aig, Edge};
use craig_base::Names;
use std::alloc::{AllocError, Global};
use std::marker::Model;

/// Where there are more nodes or outputs, memory counts as wanting.
const LIMIT: usize = 1099511627776;

/// The cones of some edges as a circuit: its inputs by rising script variable, its gates in the order of the
/// arena, and an output for each edge.
///
/// Literal 0 is false and literal 1 is true. Literal 2v is variable v and 2v + 1 its negation, where the
/// variables from 1 on are the inputs in order, and then the gates. A gate has operands of two variables, neither
/// of them the constant, no two gates are the same, and each input and gate is reached from an output.
#[derive(Debug, Drop)]
pub struct Layout {
    inputs: Vec<u32>,
    gates: Vec<(u64, u64)>,
    outputs: Vec<(OutName, u64)>,
}

impl Model for Layout {
    ghost use Rattle.craig_aiger.specs.Layouts.{Layout, IsWritable};

    ghost Value = { Layout };

    ghost view = { λ l. record { inputs = l.inputs.items; gates = l.gates.items; outputs = l.outputs.items } };

    ghost invariant = { λ l. IsWritable (record { inputs = l.inputs.items; gates = l.gates.items; outputs = l.outputs.items }) };
}

impl Layout {
    /// The layout of the cones of the edges, each an output of the name beside it. The edges are of the arena,
    /// and each dense variable of an input in their cones has a name. The edges of the constant get the literals
    /// 0 and 1. Only want of memory is an error. It takes time and memory for the nodes of the arena, with a sort
    /// of the inputs. More than 2^40 nodes count as want of memory, and so do as many outputs.
    pub fn new(
        alloc: Global,
        aig: &Aig,
        names: &Names,
        outputs: &[(OutName, Edge)],
    ) -> Result<Layout, AllocError>
        requires edges { All (λ o. o.1.place < length aig.now) outputs.now }
        requires inputs { All (λ o. (x : ℕ) → Contains (cone aig.now o.1) x → x < length names.now) outputs.now }
        ensures layout { IfOk result (IsLayout aig.now names.now outputs.now) }
        ensures functions { IfOk result (HasFunctions aig.now names.now outputs.now) }
        ensures is_writable { IfOk result IsWritable }
        ensures strict { IfOk result (λ l. IsStrict (circuit_of l)) }
    {
        craig_aig::laws::nodes_by_operands();
        craig_aig::laws::bits_are_an_assignment();
        if aig.len() > LIMIT || outputs.len() > LIMIT {
            return Err(AllocError);
        }
        // What holds of each table of names is known from here on.
        let _ = names.len();
        let table = needed_nodes(alloc, aig, outputs)?;
        let nodes = table.as_slice();
        let inputs = input_names(alloc, nodes, names)?;
        let numbers = number_nodes(alloc, nodes, names, inputs.as_slice())?;
        let numbers = numbers.as_slice();
        let gates = numbered_gates(alloc, nodes, numbers)?;
        let outputs = numbered_outputs(alloc, outputs, numbers)?;
        Ok(Layout {
            inputs,
            gates,
            outputs,
        })
    }

    /// The script variables of the inputs, rising. Input i, counted from 0, is variable i + 1 of the circuit.
    pub fn inputs(&self) -> &[u32]
        ensures value { result.now ≡ self.now.inputs }
        ensures is_writable { IsWritable self.now }
    {
        self.inputs.as_slice()
    }

    /// The operand literals of the gates, the greater first. Gate j, counted from 0, is variable I + j + 1 of
    /// the circuit, where I is the number of inputs, and its operands are below its own literal.
    pub fn gates(&self) -> &[(u64, u64)]
        ensures value { result.now ≡ self.now.gates }
        ensures is_writable { IsWritable self.now }
    {
        self.gates.as_slice()
    }

    /// The number of outputs.
    pub fn outputs(&self) -> usize
        ensures value { result ≡ length self.now.outputs }
        ensures is_writable { IsWritable self.now }
    {
        self.outputs.len()
    }

    /// The name and the literal of the output at the place, counted from 0 in the order in which the outputs
    /// were given.
    pub fn output(&self, place: usize) -> (OutName, u64)
        requires { place < length self.now.outputs }
        ensures { slice_get self.now.outputs place ≡ Some result }
    {
        self.outputs[place]
    }

    /// The number of bytes of the layout's text in the form. It takes no memory, and time for the inputs, gates
    /// and outputs.
    pub fn size_of(&self, form: Form) -> u64
        ensures value { result ≡ length (text_in form self.now) }
        ensures is_writable { IsWritable self.now }
    {
        match form {
            Form::Aag => text_size(
                self.inputs.as_slice(),
                self.gates.as_slice(),
                self.outputs.as_slice(),
            ),
            Form::Aig => binary_text_size(
                self.inputs.as_slice(),
                self.gates.as_slice(),
                self.outputs.as_slice(),
            ),
        }
    }

    /// Appends the ASCII text: a header line, a line for each input, each output and each gate, and then the
    /// symbols, which give each input its script variable and each output its name. There are no comments.
    /// The text is read back as a circuit whose outputs have, in order, the names, values and cones of the
    /// layout's, and those that are 0 or 1 stay so. No gate is written twice, and each input and gate is reached
    /// from an output. It takes memory only where `out` has no room for the text, and once. After an error, for
    /// which only want of memory is a cause, `out` is as before.
    pub fn write_aag(&self, out: &mut Vec<u8>) -> Result<(), AllocError>
        ensures text { OnOk result (out.new.items ≡ out.old.items ++ aag_text self.now) }
        ensures room { HasRoom out.old (length (aag_text self.now)) → IsOk result }
        ensures unchanged { OnErr result (out.new.items ≡ out.old.items) }
        ensures reads_back { ReadsAs self.now (aag_text self.now) }
        ensures strict { IsStrict (circuit_of self.now) }
    {
        out.reserve(self.size_of(Form::Aag) as usize)?;
        append_text(
            out,
            self.inputs.as_slice(),
            self.gates.as_slice(),
            self.outputs.as_slice(),
        );
        Ok(())
    }

    /// Appends the binary text: a header line, a line for each output, for each gate two numbers in groups of
    /// seven bits, and then the symbols of the ASCII text. The first number of a gate is its own literal less the
    /// greater operand, and the second is that operand less the other. There are no comments.
    /// The text is read back as a circuit whose outputs have, in order, the names, values and cones of the
    /// layout's, and those that are 0 or 1 stay so. No gate is written twice, and each input and gate is reached
    /// from an output. It takes memory only where `out` has no room for the text, and once. After an error, for
    /// which only want of memory is a cause, `out` is as before.
    pub fn write_aig(&self, out: &mut Vec<u8>) -> Result<(), AllocError>
        ensures text { OnOk result (out.new.items ≡ out.old.items ++ aig_text self.now) }
        ensures room { HasRoom out.old (length (aig_text self.now)) → IsOk result }
        ensures unchanged { OnErr result (out.new.items ≡ out.old.items) }
        ensures reads_back { ReadsAsBinary self.now (aig_text self.now) }
        ensures strict { IsStrict (circuit_of self.now) }
    {
        out.reserve(self.size_of(Form::Aig) as usize)?;
        append_binary_text(
            out,
            self.inputs.as_slice(),
            self.gates.as_slice(),
            self.outputs.as_slice(),
        );
        Ok(())
    }
}
